// The sample that a cell's middle falls into: how pieces are shrunk and stretched.
ghost use Rattle.std.specs.Prelude.{◌≡◌, ◌<◌};
ghost use Rattle.geometry.specs.Centre.{centre, centred};

use refusal::Refusal;

// The sample that holds the middle of a cell that there is. 128 bits hold the product; 64 do where there are at most 2^31 cells, and a
// division in them takes less time.
#[inline]
fn middle(samples: u32, cells: u32, cell: u32) -> u32
    requires { cell < cells }
    ensures { result ≡ centre samples cells cell }
{
    if cells <= 1 << 31 {
        let halves = 2 * cell + 1;
        return (halves as u64 * samples as u64 / (2 * cells as u64)) as u32;
    }
    ((2 * cell as u128 + 1) * samples as u128 / (2 * cells as u128)) as u32
}

// Over one length lie `samples` samples and `cells` cells, each kind of equal size: the sample that holds the middle of
// cell `cell`. A middle on the line between two samples belongs to the later one. Refused where there is no such cell.
#[inline]
pub fn centre(samples: u32, cells: u32, cell: u32) -> Result<u32, Refusal>
    ensures { result ≡ centred samples cells cell }
{
    if cell >= cells {
        return Err(Refusal::PlaceOutside);
    }
    Ok(middle(samples, cells, cell))
}
