// The registers that are used, by their offsets (SD Host Controller Simplified Specification 3.00, section 2.1).

/// SDMA System Address.
pub const SDMA_ADDRESS: u8 = 0x00;
/// Block Size and Block Count.
pub const SIZES: u8 = 0x04;
/// Argument.
pub const ARGUMENT: u8 = 0x08;
/// Transfer Mode and Command.
pub const COMMAND: u8 = 0x0c;
/// Response, four words.
pub const RESPONSE: u8 = 0x10;
/// Buffer Data Port.
pub const PORT: u8 = 0x20;
/// Present State.
pub const PRESENT: u8 = 0x24;
/// Its second byte: in bit 2 Buffer Write Enable, in bit 3 Buffer Read Enable.
pub const BUFFERS: u8 = 0x25;
/// Its third byte, with the levels of DAT0 to DAT3 in bits 4 to 7.
pub const DATA_LEVELS: u8 = 0x26;
/// Host Control 1.
pub const CONTROL: u8 = 0x28;
/// Power Control.
pub const POWER: u8 = 0x29;
/// Clock Control, and above it Timeout Control and Software Reset.
pub const CLOCK: u8 = 0x2c;
/// Software Reset.
pub const RESET: u8 = 0x2f;
/// Normal and Error Interrupt Status.
pub const INTERRUPTS: u8 = 0x30;
/// Normal and Error Interrupt Status Enable: what is shown in the status.
pub const SHOWN_INTERRUPTS: u8 = 0x34;
/// Normal and Error Interrupt Signal Enable: what raises an interrupt of the processor.
pub const SIGNALS: u8 = 0x38;
/// ADMA System Address, its lower 32 bits.
pub const ADMA_ADDRESS: u8 = 0x58;
/// Its upper ones.
pub const ADMA_UPPER: u8 = 0x5c;
/// Capabilities, its first word.
pub const CAPABILITIES: u8 = 0x40;
/// The version of the specification, in the lower byte of Host Controller Version.
pub const VERSION: u8 = 0xfe;
