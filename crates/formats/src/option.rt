//! The values of the command line, each named by its option or its place.

ghost use Rattle.std.specs.Prelude.{◌≡◌};
ghost use Rattle.formats.specs.Options.{option_text};

/// A value that the words give, in the order in which values are checked.
#[derive(Clone, Copy, Debug, PartialEq, Eq)]
pub enum OptionName {
    /// The number of a trial.
    Number,
    /// The minute that is listed.
    Minute,
    /// `--start`.
    Start,
    /// `--seconds`.
    Seconds,
    /// `--from`.
    From,
    /// `--to`.
    To,
    /// `--workers`.
    Workers,
    /// `--leap`.
    Leap,
    /// `--step`.
    Step,
    /// `--count`.
    Count,
    /// `--readers`.
    Readers,
}

impl OptionName {
    /// The option, or the place's name in capital letters, as a refusal tells it.
    pub fn as_str(self) -> &'static str
        ensures { result.now ≡ option_text self }
    {
        match self {
            OptionName::Number => "NUMBER",
            OptionName::Minute => "MINUTE",
            OptionName::Start => "--start",
            OptionName::Seconds => "--seconds",
            OptionName::From => "--from",
            OptionName::To => "--to",
            OptionName::Workers => "--workers",
            OptionName::Leap => "--leap",
            OptionName::Step => "--step",
            OptionName::Count => "--count",
            OptionName::Readers => "--readers",
        }
    }
}
