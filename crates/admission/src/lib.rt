// The check of a process before it is taken into a formula: its shape first, then its transitions.
#![tactic(auto)]

ghost use Rattle.std.specs.Prelude.{length, nat_lt};
ghost use Rattle.std.specs.List.{slice_get};
ghost use Rattle.fault.specs.First.{flag, earliest, Passes};
ghost use Rattle.fault.specs.declared.Fault.TheVariants.{Shape};
ghost use Rattle.calls.specs.Process.{shape_fault, step_wrong, step_fault, process_fault};

use fault::{Fault, check_each};
use process::Process;
use records::NONE;
use scale::Scale;

// How many states a process has at most.
const MAX_STATES: u32 = 65536;

// How many transitions a state has at most.
const MAX_TRANSITIONS: u32 = 65535;

// The state has no more transitions than it may.
fn check_count<P: Process>(process: &P, state: u32) -> Result<(), Fault>
    ensures { Passes (flag (nat_lt 65535 (length ((P.Process.meaning process.now).transitions state))) (Shape state)) result }
{
    if process.count(state) > MAX_TRANSITIONS {
        Err(Fault::Shape { state })
    } else {
        Ok(())
    }
}

fn check_counts<P: Process>(process: &P) -> Result<(), Fault>
    ensures { Passes (earliest (P.Process.meaning process.now).states (λ s. flag (nat_lt 65535 (length ((P.Process.meaning process.now).transitions s))) (Shape s))) result }
{
    check_each(process.states(), |state| check_count(process, state))
}

// There are states, but not too many, the initial state is one, and none has too many transitions.
fn check_shape<P: Process>(process: &P) -> Result<(), Fault>
    ensures { Passes (shape_fault (P.Process.meaning process.now)) result }
{
    let states = process.states();
    if states == 0 || states > MAX_STATES || process.initial() >= states {
        return Err(Fault::Shape { state: 0 });
    }
    check_counts(process)
}

// Transition `e` of the state has a label, leads to a state and has a value for its weight.
fn check_step<S: Scale, P: Process>(process: &P, state: u32, e: u32) -> Result<(), Fault>
    ensures { Passes (step_wrong S.Scale.algebra (P.Process.meaning process.now) state e (slice_get ((P.Process.meaning process.now).transitions state) e)) result }
{
    let Some(t) = process.transition(state, e) else {
        return Ok(());
    };
    if t.label == NONE || t.target >= process.states() || !S::is_value(t.weight) {
        Err(Fault::Step {
            state,
            transition: e,
        })
    } else {
        Ok(())
    }
}

fn check_steps_of<S: Scale, P: Process>(process: &P, state: u32) -> Result<(), Fault>
    ensures { Passes (earliest (length ((P.Process.meaning process.now).transitions state)) (λ e. step_wrong S.Scale.algebra (P.Process.meaning process.now) state e (slice_get ((P.Process.meaning process.now).transitions state) e))) result }
{
    check_each(
        process.count(state),
        |e| check_step::<S, P>(process, state, e),
    )
}

fn check_steps<S: Scale, P: Process>(process: &P) -> Result<(), Fault>
    ensures { Passes (step_fault S.Scale.algebra (P.Process.meaning process.now)) result }
{
    check_each(
        process.states(),
        |state| check_steps_of::<S, P>(process, state),
    )
}

// Whether the process can be taken in; otherwise the first fault in it.
pub fn check_process<S: Scale, P: Process>(process: &P) -> Result<(), Fault>
    ensures { Passes (process_fault S.Scale.algebra (P.Process.meaning process.now)) result }
{
    check_shape(process)?;
    check_steps::<S, P>(process)
}
