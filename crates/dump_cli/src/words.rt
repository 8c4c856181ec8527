//! The arguments on the command line.
ghost use Rattle.std.specs.Prelude.{◌≡◌, ◌≢◌, ◌≤◌, Err, map, true};
ghost use Rattle.dump_cli.specs.Words.{AnswersTo, meaning_of, shown};
ghost use Rattle.dump_cli.specs.steps.LawfulLines.{is_call, is_taken};

use cli_support::{FilterCall, Usage, read_filter_call};
use dump_pipeline::Plan;
use dump_rules::Options;
use std::alloc::Global;

/// What the arguments ask for.
#[derive(Drop)]
pub struct Order {
    pub options: Options,
    pub plan: Plan,
    /// Whether a run without a fault writes no line.
    pub quiet: bool,
}

/// The order that the arguments give. `words[0]` is the program's name.
pub fn options_of<'a>(alloc: Global, words: &'a [&'a str]) -> Result<Order, Usage>
    ensures meaning { AnswersTo (meaning_of (map (λ word. word.now) words.now)) result }

    // A well-formed call is never rejected as wrong arguments.
    ensures lawful { is_call (map (λ word. word.now) words.now) ≡ true → result ≢ Err Usage.Words }
    ensures takes { is_taken (map (λ word. word.now) words.now) ≡ true → result ≢ Err Usage.Words }
{
    let Some((_, line)) = words.split_first() else {
        return Err(Usage::Words);
    };
    match read_filter_call(alloc, line) {
        Ok(call) => Ok(order_of(call)),
        Err(usage) => Err(usage),
    }
}

/// The order of a call.
fn order_of(call: FilterCall) -> Order
    requires workers { (1 ≤ call.workers) × (call.workers ≤ 64) }
    requires window { (1 ≤ call.window) × (call.window ≤ 4096) }
    ensures { shown result ≡ call }
{
    let Some(plan) = Plan::new(call.workers, call.window) else {
        unreachable!()
    };
    Order {
        options: call.options,
        plan,
        quiet: call.quiet,
    }
}
