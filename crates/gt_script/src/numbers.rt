ghost use Rattle.std.specs.Prelude.{◌≡◌, ◌<◌, ◌≤◌, ◌^◌, Some, None, nat_le, if◌then◌else◌, IfSome};
ghost use Rattle.gt_script.specs.Values.{digits_value, number};

use itoa::Buffer;

/// What the bytes are if they are decimal digits; none where that is over this bound.
fn value_up_to(word: &[u8], high: u64) -> Option<u64>
    requires { high < 2 ^ 60 }
    ensures { result ≡ (if nat_le (digits_value 0 word.now) high then Some (digits_value 0 word.now) else None) }
{
    let mut value = 0;
    for byte in word {
        value = value * 10 + u64::from(byte.saturating_sub(b'0'));
        if value > high {
            return None;
        }
    }
    Some(value)
}

/// A number of this range, in decimal without leading zeros.
#[tactic(auto, unfolding(crate::specs::Values::number))]
pub(crate) fn number(word: &[u8], low: u64, high: u64) -> Option<u64>
    requires { high < 2 ^ 60 }
    ensures value { result ≡ number low high word.now }
    ensures within { IfSome result (λ n. (low ≤ n) × (n ≤ high)) }
{
    let value = value_up_to(word, high)?;
    let mut buffer = Buffer::new();
    if value >= low && buffer.format(value).as_bytes() == word {
        Some(value)
    } else {
        None
    }
}
