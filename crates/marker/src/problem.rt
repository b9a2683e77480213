// Document 01's problems of a marker scan.
ghost use Rattle.std.specs.Prelude.{◌≡◌};
ghost use Rattle.marker.specs.Problems.{number_of, of_number};

// In the order of their numbers.
#[derive(Clone, Copy, PartialEq, Eq)]
pub enum Problem {
    MarkerInFence = 1,
    NestedRegion,
    FragmentMarker,
    UnclosedRegion,
    UnclosedFence,
    StrayCloser,
    UnclosedSpec,
    UnclosedSpan,
    NestedMarker,
    EmptySpec,
}

impl Problem {
    pub fn number(self) -> usize
        ensures { result ≡ number_of self }
    {
        self as usize
    }

    // The problem that has a number, for 1 to 10; the last one for others. Rust casts no number to an enum.
    #[tactic(auto, unfolding(crate::specs::Problems::of_number))]
    pub fn of_number(number: usize) -> Problem
        ensures { result ≡ of_number number }
    {
        match number {
            1 => Problem::MarkerInFence,
            2 => Problem::NestedRegion,
            3 => Problem::FragmentMarker,
            4 => Problem::UnclosedRegion,
            5 => Problem::UnclosedFence,
            6 => Problem::StrayCloser,
            7 => Problem::UnclosedSpec,
            8 => Problem::UnclosedSpan,
            9 => Problem::NestedMarker,
            _ => Problem::EmptySpec,
        }
    }
}
