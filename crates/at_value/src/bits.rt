//! Fields of bits in a word of 64 bits.
ghost use Rattle.std.specs.Prelude.{◌≡◌, ◌<◌, ◌+◌, ◌-◌, ◌*◌, ◌/◌, ◌%◌, ◌^◌};

pub(crate) fn joined(above: u64, width: u32, low: u64) -> u64
    requires width { width < 64 }
    requires low { low < 2 ^ width }
    requires above { above < 2 ^ (64 - width) }
    ensures { result ≡ above * 2 ^ width + low }
{
    above << width | low
}

pub(crate) fn split(word: u64, width: u32) -> (u64, u64)
    requires { width < 64 }
    ensures low { result.0 ≡ word % 2 ^ width }
    ensures above { result.1 ≡ word / 2 ^ width }
{
    (word & (1 << width) - 1, word >> width)
}
