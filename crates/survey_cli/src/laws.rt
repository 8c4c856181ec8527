//! Laws of the arguments; each is the contract of a function that does nothing.
ghost use Rattle.survey_cli.specs.CallLaws.{ReadsAsFilter, ReadsMapAnywhere};

/// The survey reads the arguments of a call as the filter reads them, but for `--map`.
pub fn each_call_is_read_as_by_the_filter()
    ensures alone { ReadsAsFilter }
    ensures map { ReadsMapAnywhere }
{}
