//! Products of nibbles, of which every product of bytes is a sum.
ghost use Rattle.std.specs.Prelude.{◌≡◌, ◌<◌, ◌*◌};
ghost use Rattle.gf256.specs.Field.{field_mul};
ghost use Rattle.gf256.specs.Tables.{Tabulates};

// x^8 + x^4 + x^3 + x^2 + 1, modulo which products are taken.
const POLYNOMIAL: u16 = 0x11D;

/// The product of a nibble and a byte, not yet reduced.
macro_rules! carry_less {
    ($a:literal, $b:expr) => {
        ($b * ($a & 1)) ^ ($b * ($a & 2)) ^ ($b * ($a & 4)) ^ ($b * ($a & 8))
    };
}

/// The remainder of a polynomial of degree below 11.
macro_rules! reduced {
    ($p:expr) => {
        ($p ^ (POLYNOMIAL * (($p >> 8) & 1))
            ^ (POLYNOMIAL * (($p >> 8) & 2))
            ^ (POLYNOMIAL * (($p >> 8) & 4))) as u8
    };
}

macro_rules! low {
    ($a:literal, $b:literal) => {
        reduced!(carry_less!($a, $b))
    };
}

macro_rules! middle {
    ($a:literal, $b:literal) => {
        reduced!(carry_less!($a, ($b * 16)))
    };
}

// x^8 leaves the remainder 0x1D.
macro_rules! high {
    ($a:literal, $b:literal) => {
        reduced!(carry_less!($a, carry_less!($b, 0x1D)))
    };
}

macro_rules! row {
    ($entry:ident, $a:literal) => {
        [
            $entry!($a, 0),
            $entry!($a, 1),
            $entry!($a, 2),
            $entry!($a, 3),
            $entry!($a, 4),
            $entry!($a, 5),
            $entry!($a, 6),
            $entry!($a, 7),
            $entry!($a, 8),
            $entry!($a, 9),
            $entry!($a, 10),
            $entry!($a, 11),
            $entry!($a, 12),
            $entry!($a, 13),
            $entry!($a, 14),
            $entry!($a, 15),
        ]
    };
}

macro_rules! table {
    ($entry:ident) => {
        [
            row!($entry, 0),
            row!($entry, 1),
            row!($entry, 2),
            row!($entry, 3),
            row!($entry, 4),
            row!($entry, 5),
            row!($entry, 6),
            row!($entry, 7),
            row!($entry, 8),
            row!($entry, 9),
            row!($entry, 10),
            row!($entry, 11),
            row!($entry, 12),
            row!($entry, 13),
            row!($entry, 14),
            row!($entry, 15),
        ]
    };
}

static LOW: [[u8; 16]; 16] = table!(low);

static MIDDLE: [[u8; 16]; 16] = table!(middle);

static HIGH: [[u8; 16]; 16] = table!(high);

/// The products of a nibble with each nibble.
pub fn low(a: u8) -> &'static [u8; 16]
    requires { a < 16 }
    ensures { Tabulates (field_mul a) result.now }
{
    &LOW[usize::from(a)]
}

/// The products of a nibble with each nibble times x^4.
pub fn middle(a: u8) -> &'static [u8; 16]
    requires { a < 16 }
    ensures shifted_entry { Tabulates (λ n. field_mul a (16 * n)) result.now }
    ensures shifted_row { Tabulates (field_mul (16 * a)) result.now }
{
    &MIDDLE[usize::from(a)]
}

/// The products of a nibble times x^4 with each nibble times x^4.
pub fn high(a: u8) -> &'static [u8; 16]
    requires { a < 16 }
    ensures { Tabulates (λ n. field_mul (16 * a) (16 * n)) result.now }
{
    &HIGH[usize::from(a)]
}
