// The fields of a register as data.
ghost use Rattle.std.specs.Prelude.{◌≡◌};
ghost use Rattle.card_decode.specs.Fields.{is_hexadecimal, is_reserved};

/// A value with a name, or a bit with one.
#[derive(Clone, Copy, Debug)]
pub struct Name {
    /// The value, or the place of the bit, the lowest at 0.
    pub value: u64,
    /// What it stands for.
    pub text: &'static [u8],
}

/// What a number counts: the number plus `offset`, times `factor`, is so many of `unit`.
#[derive(Clone, Copy, Debug)]
pub struct Scale {
    /// What is added first.
    pub offset: u64,
    /// What the sum is multiplied by.
    pub factor: u64,
    /// The unit.
    pub unit: &'static [u8],
}

/// What the value of a field stands for.
#[derive(Clone, Copy, Debug)]
pub enum Meaning {
    /// A number in decimal digits, with no more to say.
    Number,
    /// A number of any width in hexadecimal digits, with no more to say.
    Hexadecimal,
    /// What holds where the value isn't 0.
    Flag(&'static [u8]),
    /// One of these values; another one is reserved.
    Named(&'static [Name]),
    /// A number in hexadecimal digits, which has one of these names, or none that is known.
    Listed(&'static [Name]),
    /// A set of these bits.
    Bits(&'static [Name]),
    /// So many of a unit.
    Scaled(Scale),
    /// 2 to the power of the value of a unit; a value of 64 or more is reserved.
    Power(&'static [u8]),
    /// A mantissa, which the bits from 3 up choose, times the scale that bits 2 to 0 choose, whose offset doesn't count;
    /// others are reserved, and a mantissa of 0 too.
    Product(&'static [u64], &'static [Scale]),
    /// Characters, of which there are so many, the first in the highest byte.
    Text(usize),
    /// Two numbers of four bits, `n.m`.
    Revision,
    /// The month in the lowest four bits, and above them the year from 2000 on.
    Date,
    /// The year from 1997 on in the lowest four bits, and above them the month; from EXT_CSD_REV 5 on the years 0 to 12 are
    /// from 2013 on.
    MmcDate,
    /// Bits that have to be 0.
    Reserved,
}

impl Meaning {
    /// Whether the value is printed in hexadecimal digits.
    pub(crate) fn is_hexadecimal(&self) -> bool
        ensures { result ≡ is_hexadecimal self.now }
    {
        matches!(
            self,
            Meaning::Hexadecimal
                | Meaning::Listed(_)
                | Meaning::Bits(_)
                | Meaning::Text(_)
                | Meaning::Reserved
        )
    }

    /// Whether the field is reserved.
    pub(crate) fn is_reserved(&self) -> bool
        ensures { result ≡ is_reserved self.now }
    {
        matches!(self, Meaning::Reserved)
    }
}

/// A field of a register.
#[derive(Clone, Copy, Debug)]
pub struct Field {
    /// Its name in the standard.
    pub name: &'static [u8],
    /// Its highest bit; of an EXT_CSD its highest byte.
    pub high: u16,
    /// Its lowest bit; of an EXT_CSD its lowest byte.
    pub low: u16,
    /// What its value stands for.
    pub meaning: Meaning,
}
