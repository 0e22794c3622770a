// What tests say of the cards of `example_cards`.
ghost use Rattle.std.specs.Prelude.{◌<◌};

use mmc_bus::{Bytes, DataIn, DataOut, Part, Reply, Want};
use mmc_card_sim::{CardSpec, Fault, SimCard};
use mmc_frame::commands::SEND_STATUS;
use mmc_frame::{encode, encode_response};
use std::alloc::Global;
use std::process::Abort;
use std::test::Fail;

/// The argument that names a card with RCA 1.
pub const RCA: u32 = 0x0001_0000;

/// An image of so many sectors, each filled with the remainder of its number by 251.
pub fn numbered_image(alloc: Global, sectors: u32) -> Result<Option<Bytes>, Fail> {
    let mut bytes = Vec::new(alloc);
    for sector in 0..sectors {
        bytes.extend_from_slice(&[(sector % 251) as u8; 512])?;
    }
    Ok(Some(Bytes::new(bytes)))
}

/// The card of a spec, after power on.
pub fn built(alloc: Global, spec: CardSpec) -> Result<SimCard, Fail> {
    Ok(SimCard::build(alloc, spec).ok().ok_or("not built")?)
}

/// An SD card in tran, over one line.
pub fn selected_sd(alloc: Global, spec: CardSpec) -> Result<SimCard, Fail> {
    let mut card = built(alloc, spec)?;
    for (index, argument) in [(0, 0), (55, 0), (41, 0x4030_0000), (2, 0), (3, 0), (7, RCA)] {
        send(&mut card, encode(index, argument));
    }
    wait(&mut card);
    Ok(card)
}

/// An eMMC device in tran, over one line.
pub fn selected_mmc(alloc: Global, spec: CardSpec) -> Result<SimCard, Fail> {
    let mut card = built(alloc, spec)?;
    for (index, argument) in [(0, 0), (1, 0x4030_0000), (2, 0), (3, RCA), (7, RCA)] {
        send(&mut card, encode(index, argument));
    }
    wait(&mut card);
    Ok(card)
}

/// Sends a command, whatever the answer.
pub fn send(card: &mut SimCard, frame: [u8; 6]) {
    card.command(frame, Want::Short);
}

/// Polls until the card isn't busy, nine times at most.
pub fn wait(card: &mut SimCard) {
    for _polls in 0..9 {
        if !card.busy() {
            return;
        }
    }
}

/// Plans a fault for the exchange that comes after so many others.
pub fn plan_after(card: &mut SimCard, others: u64, fault: Fault) -> Result<(), Fail> {
    let exchange = card.exchanges().saturating_add(others);
    card.plan(exchange, fault).ok().ok_or("not planned")?;
    Ok(())
}

/// What the card answers to a command.
pub fn expect_reply(rt: &impl Abort, card: &mut SimCard, frame: [u8; 6], wanted: Reply) {
    let exchange = card.exchanges();
    let reply = card.command(frame, Want::Short);
    assert_eq!(rt; reply, wanted, "exchange {exchange}");
}

/// The card doesn't answer a command.
pub fn expect_silence(rt: &impl Abort, card: &mut SimCard, frame: [u8; 6]) {
    expect_reply(rt, card, frame, Reply::Silent);
}

/// The card answers a command with this frame.
pub fn expect_frame(rt: &impl Abort, card: &mut SimCard, frame: [u8; 6], wanted: [u8; 6]) {
    expect_reply(rt, card, frame, Reply::Short(wanted));
}

/// The card answers the command with this index, 0 to 63, with an R1 that has this status.
pub fn expect_r1(rt: &impl Abort, card: &mut SimCard, index: u8, argument: u32, status: u32)
    requires { index < 64 }
{
    let wanted = encode_response(index, status);
    expect_frame(rt, card, encode(index, argument), wanted);
}

/// The card answers CMD13 with this status.
pub fn expect_status(rt: &impl Abort, card: &mut SimCard, status: u32) {
    expect_r1(rt, card, SEND_STATUS, RCA, status);
}

/// The card says so often that it is busy, and then that it isn't.
pub fn expect_polls(rt: &impl Abort, card: &mut SimCard, busy: u32) {
    for poll in 0..busy {
        assert!(rt; card.busy(), "poll {poll}");
    }
    assert!(rt; !card.busy(), "after {busy}");
}

/// What comes where the host reads a sector.
pub fn expect_data(rt: &impl Abort, card: &mut SimCard, wanted: DataIn) {
    let exchange = card.exchanges();
    assert_eq!(rt;
        card.read_data(&mut [0; 512]),
        wanted,
        "exchange {exchange}"
    );
}

/// The host reads a sector that is filled with this byte.
pub fn expect_sector(rt: &impl Abort, card: &mut SimCard, byte: u8) {
    let mut block = [!byte; 512];
    let exchange = card.exchanges();
    assert_eq!(rt;
        card.read_data(&mut block),
        DataIn::Good,
        "exchange {exchange}"
    );
    assert!(rt; block == [byte; 512], "exchange {exchange}");
}

/// What becomes of a sector filled with this byte, where the host offers it.
pub fn expect_taken(rt: &impl Abort, card: &mut SimCard, byte: u8, wanted: DataOut) {
    let exchange = card.exchanges();
    assert_eq!(rt;
        card.write_data(&[byte; 512]),
        wanted,
        "exchange {exchange}"
    );
}

/// Sectors of a partition are filled with these bytes, from this one on.
pub fn expect_filled(rt: &impl Abort, card: &SimCard, part: Part, sector: usize, bytes: &[u8]) {
    for (i, byte) in bytes.iter().enumerate() {
        let found = card.sector(part, sector.saturating_add(i));
        assert!(rt; found == Some([*byte; 512]), "sector {sector} and {i}");
    }
}
