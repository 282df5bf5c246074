// The bytes of guard bands.
ghost use Rattle.std.specs.Prelude.{◌≡◌, false};
ghost use Rattle.rwpk.specs.Bytes.{bands_bytes};
ghost use Rattle.sheet.specs.Rules.{over_four};

use sheet::GuardBands;

// The bytes of bands of kinds that there are.
pub(crate) fn bands_bytes(bands: &GuardBands) -> [u8; 6]
    requires { over_four bands.now.kinds ≡ false }
    ensures { result ≡ bands_bytes bands.now }
{
    let sizes = bands.sizes;
    let kinds = bands.kinds;
    let flag: u16 = if bands.prediction { 32768 } else { 0 };
    let word = flag
        + kinds.left as u16 * 4096
        + kinds.right as u16 * 512
        + kinds.top as u16 * 64
        + kinds.bottom as u16 * 8;
    let [high, low] = word.to_be_bytes();
    [sizes.left, sizes.right, sizes.top, sizes.bottom, high, low]
}
