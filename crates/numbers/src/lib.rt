// The few functions on numbers that several layers use.
#![tactic(auto)]

ghost use Rattle.std.specs.Prelude.{◌≡◌, ◌+◌, ◌*◌, ◌/◌, ◌%◌};

// The lowest byte of a number.
pub fn low_byte(n: usize) -> u8
    ensures { result ≡ n % 256 }
{
    (n % 256) as u8
}

// ---- numbers of two bytes

// The number of two bytes, high byte first.
pub fn of_bytes(high: u8, low: u8) -> u16
    ensures { result ≡ 256 * high + low }
{
    256 * (high as u16) + (low as u16)
}

// The first of its bytes.
pub fn first_byte(n: u16) -> u8
    ensures { result ≡ n / 256 }
{
    (n / 256) as u8
}

// The second.
pub fn second_byte(n: u16) -> u8
    ensures { result ≡ n % 256 }
{
    (n % 256) as u8
}
