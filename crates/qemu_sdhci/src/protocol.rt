// QEMU's test protocol (QEMU, docs/devel/testing/qtest.rst): a line asks for one access to memory, and a line answers it. Standard
// output leads to QEMU, and standard input comes from it.

const OUT: i32 = 1;

const IN: i32 = 0;

/// A conversation with QEMU.
#[derive(Drop)]
pub struct Conversation {
    /// It was broken off: QEMU ended, or its answer was another one.
    pub is_broken: bool,
}

// A digit of a hexadecimal number.
fn digit_of(value: u64) -> u8 {
    let low = (value % 16) as u8;
    if low < 10 {
        b'0' + low
    } else {
        b'a' + (low - 10)
    }
}

// Eight digits.
fn digits_of(value: u32) -> [u8; 8] {
    let value = u64::from(value);
    [
        digit_of(value >> 28),
        digit_of(value >> 24),
        digit_of(value >> 20),
        digit_of(value >> 16),
        digit_of(value >> 12),
        digit_of(value >> 8),
        digit_of(value >> 4),
        digit_of(value),
    ]
}

// What a digit says.
fn value_of(digit: u8) -> Option<u32> {
    match digit {
        b'0'..=b'9' => Some(u32::from(digit - b'0')),
        b'a'..=b'f' => Some(u32::from(digit - b'a') + 10),
        _ => None,
    }
}

// The number that the last eight digits of an answer say.
fn number_in(answer: &[u8; 22]) -> Option<u32> {
    if !answer.starts_with(b"OK 0x") {
        return None;
    }
    let mut value: u32 = 0;
    for digit in answer[13..21].iter() {
        value = value.wrapping_mul(16).wrapping_add(value_of(*digit)?);
    }
    Some(value)
}

impl Conversation {
    /// One that begins.
    pub fn new() -> Conversation {
        Conversation { is_broken: false }
    }

    // Sends a part of a line.
    fn say(&mut self, text: &[u8]) {
        if !io::write_all(OUT, text) {
            self.is_broken = true;
        }
    }

    /// Reads: `readb` or `readl`, and an address.
    pub fn read(&mut self, what: &[u8], address: u32) -> u32 {
        self.say(what);
        self.say(b" 0x");
        self.say(&digits_of(address));
        self.say(b"\n");
        let mut answer = [0; 22];
        if io::read_full(IN, &mut answer) == 22
            && let Some(value) = number_in(&answer)
        {
            return value;
        }
        self.is_broken = true;
        0
    }

    /// Writes: `writeb` or `writel`, an address and a value.
    pub fn write(&mut self, what: &[u8], address: u32, value: u32) {
        self.say(what);
        self.say(b" 0x");
        self.say(&digits_of(address));
        self.say(b" 0x");
        self.say(&digits_of(value));
        self.say(b"\n");
        let mut answer = [0; 3];
        if io::read_full(IN, &mut answer) != 3 || &answer != b"OK\n" {
            self.is_broken = true;
        }
    }
}
