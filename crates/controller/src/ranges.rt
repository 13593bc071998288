// Ranges from the words that cross from C.
ghost use Rattle.std.specs.Prelude.{◌≡◌, IfOk};
ghost use Rattle.std.specs.List.{AllByRecursion};
ghost use Rattle.range.specs.Scale.{IsRange};
ghost use Rattle.controller.specs.Calls.{ranges_in};

use range::range::Range;
use range::words::Words;
use refusal::Why;

// The ranges of three axes, or the first refusal.
pub(crate) fn ranges_of(words: [Words; 3]) -> Result<[Range; 3], Why>
    ensures value { result ≡ ranges_in words }
    ensures sound { IfOk result (AllByRecursion IsRange) }
{
    let [x, y, z] = words;
    Ok([x.try_into()?, y.try_into()?, z.try_into()?])
}
