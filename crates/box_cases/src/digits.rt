// Bytes from hexadecimal digits.
ghost use Rattle.std.specs.Prelude.{◌<◌, IfOk};

use anyhow::anyhow;

fn value(digit: u8) -> anyhow::Result<u8>
    ensures { IfOk result (λ n. n < 16) }
{
    match digit {
        b'0'..=b'9' => Ok(digit - b'0'),
        b'a'..=b'f' => Ok(digit - b'a' + 10),
        _ => Err(anyhow!("not a hexadecimal digit")),
    }
}

// Two digits to a byte. Each digit is judged before it is asked whether their number is odd.
pub(crate) fn bytes_of(rt: &HostRuntime, digits: &str) -> anyhow::Result<Vec<u8>> {
    let mut bytes = Vec::new(rt.alloc());
    for pair in digits.as_bytes().chunks(2) {
        let [high, rest @ ..] = pair else { break };
        let high = value(*high)?;
        let [low] = rest else {
            return Err(anyhow!("an odd number of digits"));
        };
        bytes.push(high * 16 + value(*low)?)?;
    }
    Ok(bytes)
}
