ghost use Rattle.std.specs.Prelude.{◌≡◌, false, true};
ghost use Rattle.mmc_card.specs.declared.exchange.DataIn.TheVariants.{Good};

use mmc_bus::{BlocksMut, Bus, DataIn, DataOut, Lines, Moved, Reply, Timing, Want, Width};

fn is_good(got: DataIn) -> bool
    ensures yes { result ≡ true → got ≡ Good }
    ensures no { result ≡ false → got ≡ Good → ⊥ }
{
    match got {
        DataIn::Good => true,
        DataIn::Bad | DataIn::Nothing => false,
    }
}

/// Such a bus.
#[derive(Drop)]
pub struct MovingBus<B: Bus> {
    pub bus: B,
}

impl<B: Bus> Bus for MovingBus<B> {
    ghost view = { λ s. B.view s.bus };

    fn limits(&self) -> Lines {
        self.bus.limits()
    }

    fn command(&mut self, frame: [u8; 6], want: Want) -> Reply {
        self.bus.command(frame, want)
    }

    fn begin(&mut self, frame: [u8; 6], want: Want, blocks: u16) -> Reply {
        self.bus.begin(frame, want, blocks)
    }

    fn read_data(&mut self, buffer: &mut [u8]) -> DataIn {
        self.bus.read_data(buffer)
    }

    fn write_data(&mut self, block: &[u8; 512]) -> DataOut {
        self.bus.write_data(block)
    }

    fn busy(&mut self) -> bool {
        self.bus.busy()
    }

    fn read_with<D: BlocksMut>(
        &mut self,
        frame: [u8; 6],
        want: Want,
        blocks: &mut D,
    ) -> (Reply, Moved<DataIn>) {
        let reply = self.bus.command(frame, want);
        let count = blocks.len();
        for done in 0..count {
            let got = self.bus.read_data(blocks.block_mut(done));
            if !is_good(got) {
                return (reply, Moved::Failed(got));
            }
        }
        (reply, Moved::Good(count))
    }

    fn set_lines(&mut self, width: Width, timing: Timing) {
        self.bus.set_lines(width, timing);
    }
}
