// Samples one after another, for a store to take.
ghost use Rattle.std.specs.Prelude.{◌≡◌, ℕ, ◌+◌, ◌<◌, ◌≤◌, true, length, is_some, Some, Option};
ghost use Rattle.picture.specs.Lines.{Full, Given};

// So many samples. A line need not have each of them: whoever asks for some knows that they are there.
pub trait Line {
    // A refused put lets its sample go.
    type Sample: Drop;

    // How many samples the line counts.
    ghost long: { Self → ℕ };

    // The sample with that number, if there is one.
    ghost held: { Self → ℕ → Option Self.Sample };

    fn count(&self) -> usize
        ensures { result ≡ long self.now };

    fn sample(&self, i: usize) -> Self::Sample
        requires within { i < long self.now }
        requires there { is_some (held self.now i) ≡ true }
        ensures { held self.now i ≡ Some result };

    // Writes the samples from `start` on, as many as `out` takes.
    fn give(&self, start: usize, out: &mut [Self::Sample])
        requires within { start + length out.old ≤ long self.now }
        requires full { Full (long self.now) (held self.now) }
        ensures { Given (length out.old) (λ i. held self.now (start + i)) out.new };
}
