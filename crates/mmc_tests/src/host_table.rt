// Rows of the table of what a host controller is told, as the standards have them.
use mmc_card::Command;
use mmc_host::{Data, Response, data_of, meant, response_of};

#[test]
fn tells_commands_of_one_index_apart(rt: HostRuntime) {
    // SD Physical Layer 6.00, sections 4.3.10 and 4.7.4; JESD84-B51, sections 6.6.1 and 6.10.4.
    assert!(rt; meant(3, 0, false) == Command::SendRelativeAddr);
    assert!(rt; meant(3, 0x0001_0000, false) == Command::SetRelativeAddr);
    assert!(rt; meant(6, 2, true) == Command::SetBusWidth);
    assert!(rt; meant(6, 0x80ff_fff1, false) == Command::SwitchFunc);
    assert!(rt; meant(6, 0x03b7_0200, false) == Command::Switch);
    assert!(rt; meant(8, 0x1aa, false) == Command::SendIfCond);
    assert!(rt; meant(8, 0, false) == Command::SendExtCsd);
    assert!(rt; meant(41, 0x4030_0000, true) == Command::SdSendOpCond);
    assert!(rt; meant(41, 0, false) == Command::Unknown);
}

#[test]
fn tells_the_response_of_a_command(rt: HostRuntime) {
    // SD Physical Layer 6.00, tables 4-23 to 4-33; JESD84-B51, section 6.10.4.
    let rows = [
        (Command::GoIdleState, Response::Nothing),
        (Command::AllSendCid, Response::R2),
        (Command::SendRelativeAddr, Response::R6),
        (Command::SetRelativeAddr, Response::R1),
        (Command::SelectCard, Response::R1b),
        (Command::SendIfCond, Response::R7),
        (Command::SendExtCsd, Response::R1),
        (Command::StopTransmission, Response::R1b),
        (Command::SendStatus, Response::R1),
        (Command::Switch, Response::R1b),
        (Command::SwitchFunc, Response::R1),
        (Command::SdSendOpCond, Response::R3),
    ];
    for (command, response) in rows {
        assert!(rt; response_of(command) == response, "{command:?}");
    }
}

#[test]
fn tells_the_data_after_a_command(rt: HostRuntime) {
    let sectors = |blocks| Data::Read {
        length: 512,
        blocks,
    };
    assert!(rt; data_of(Command::SendStatus, 0, 8) == Data::Nothing);
    assert!(rt; data_of(Command::ReadSingleBlock, 0, 8) == sectors(1));
    assert!(rt; data_of(Command::ReadMultipleBlock, 16, 8) == sectors(16));
    assert!(rt; data_of(Command::ReadMultipleBlock, 0, 8) == sectors(8));
    assert!(rt; data_of(Command::WriteMultipleBlock, 0, 8) == Data::Write { blocks: 8 });
    assert!(rt;
        data_of(Command::SwitchFunc, 0, 8)
            == Data::Read {
                length: 64,
                blocks: 1
            }
    );
    assert!(rt;
        data_of(Command::SendScr, 0, 8)
            == Data::Read {
                length: 8,
                blocks: 1
            }
    );
}
