// The kind that a first byte names.
ghost use Rattle.std.specs.Prelude.{◌≡◌};
ghost use Rattle.spec_file.specs.Kinds.{row, kind_of};

use spec_file::Kind;

// A kind without fields.
fn bare(byte: usize, least: usize, most: usize) -> Kind
    ensures { result ≡ row byte least most 0 0 0 0 0 }
{
    Kind {
        byte,
        least,
        most,
        register: 0,
        location: 0,
        first: 0,
        second: 0,
        skip: 0,
    }
}

// A kind of one length, without a skip.
fn plain(
    byte: usize,
    size: usize,
    register: usize,
    location: usize,
    first: usize,
    second: usize,
) -> Kind
    ensures { result ≡ row byte size size register location first second 0 }
{
    Kind {
        register,
        location,
        first,
        second,
        ..bare(byte, size, size)
    }
}

// A skip unless its test holds: register, operand and how far.
fn skipping(byte: usize) -> Kind
    ensures { result ≡ row byte 8 8 1 0 2 0 7 }
{
    Kind {
        skip: 7,
        ..plain(byte, 8, 1, 0, 2, 0)
    }
}

// The kind that a first byte names; for an unknown byte one that no length fits.
#[tactic(auto, unfolding(spec_file::specs::Kinds::kind_of, spec_file::specs::Kinds::lookup, spec_file::specs::Kinds::kinds))]
pub fn kind_of(b: usize) -> Kind
    ensures { result ≡ kind_of b }
{
    match b {
        0x01 => bare(b, 1, 1),
        0x02 => bare(b, 3, 7),
        0x03 => plain(b, 6, 0, 1, 0, 0),
        0x10 => plain(b, 7, 0, 1, 2, 0),
        0x11 => plain(b, 3, 1, 2, 0, 0),
        0x12 => plain(b, 8, 1, 2, 3, 0),
        0x13 => plain(b, 13, 1, 2, 3, 8),
        0x20 | 0x21 | 0x23 => plain(b, 7, 1, 0, 2, 0),
        0x22 | 0x24 => skipping(b),
        0x25 => plain(b, 7, 1, 0, 2, 0),
        _ => bare(b, 1, 0),
    }
}
