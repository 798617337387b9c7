//! The law of a command's row: a function that does nothing, with the law as clauses.

ghost use Rattle.std.specs.Prelude.{◌≡◌, ◌↔◌, ◌∷◌, ℕ, List, Some, is_some, true, slice_get};
ghost use Rattle.mind_base.specs.declared.commands.Command.{Command as CommandValue};
ghost use Rattle.hart_effect.specs.Thread.{Thread};
ghost use Rattle.tso_machine.specs.Commands.{command_span, next_command};
ghost use Rattle.tso_machine.specs.Rows.{row_of, own_label, BuffersIn, BuffersLowest};
ghost use Rattle.tso_machine.specs.State.{Setup, State};
ghost use Rattle.tso_machine.specs.Step.{after};
ghost use Rattle.tso_machine.specs.declared.labels.Label.TheVariants as label;

/// The labels of a command begin with a drain of just the lowest thread that buffers a store in its span.
/// Behind that drain they are the labels of the command in the state that it leaves. Where no thread
/// buffers such a store they are the command alone, or nothing where it moves pages, and a command that is
/// next is enabled just there.
pub fn a_command_waits_for_the_drains_before_it()
    ensures head { (setup : Setup) (threads : List Thread) (index : ℕ) (command : CommandValue) (hart : ℕ)
        → (slice_get (row_of setup threads index command) 0 ≡ Some (label.Drain hart)) ↔ BuffersLowest setup threads (command_span command) hart }
    ensures tail { (setup : Setup) (state next : State) (index : ℕ) (command : CommandValue) (hart : ℕ)
        → BuffersLowest setup state.threads (command_span command) hart → after setup state (label.Drain hart) ≡ Some next
        → row_of setup state.threads index command ≡ label.Drain hart ∷ row_of setup next.threads index command }
    ensures bare { (setup : Setup) (threads : List Thread) (index : ℕ) (command : CommandValue)
        → ((hart : ℕ) → BuffersIn setup threads (command_span command) hart → ⊥)
        → row_of setup threads index command ≡ own_label index command }
    ensures enabled { (setup : Setup) (state : State) (index : ℕ) (command : CommandValue)
        → next_command setup.commands state.taken ≡ Some index → slice_get setup.commands index ≡ Some command
        → (is_some (after setup state (label.Command index)) ≡ true) ↔ ((hart : ℕ) → BuffersIn setup state.threads (command_span command) hart → ⊥) }
{}
