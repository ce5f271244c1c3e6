//! What follows where the calls of a phase were made one after another. Each law is the contract of a function that does
//! nothing.
ghost use Rattle.std.specs.Prelude.{◌≡◌, ◌≤◌, ◌<◌, suc, ◌∷◌, ◌++◌, [], ℕ, List, length, map};
ghost use Rattle.std.specs.List.{AllByRecursion};
ghost use Rattle.component_items.specs.declared.component.Component.{Component as ComponentValue};
ghost use Rattle.component_items.specs.Kept.{IsKept};
ghost use Rattle.plain_evaluation.specs.Fits.{RowsFit};
ghost use Rattle.plain_evaluation.specs.Held.{Held};
ghost use Rattle.plain_evaluation.specs.Written.{state_of};
ghost use Rattle.run_meaning.specs.Opened.{Opened, opened_of};
ghost use Rattle.run_meaning.specs.Lane.{Done};
ghost use Rattle.run_meaning.specs.Phase.{Phase};
ghost use Rattle.run_meaning.specs.Causes.{HasRoom};
ghost use Rattle.run_meaning.specs.Run.{IsPhase};
ghost use Rattle.run_history.specs.Going.{start_of, Going, just_opened};
ghost use Rattle.run_history.specs.Calls.{Call, MadeCall, CallsLead, calls_by};
ghost use Rattle.run_history.specs.History.{Made, Follows, ByPasses, lanes_of, VerdictsFit};
ghost use Rattle.store_fields.specs.declared.edit.Verdict.{Verdict as VerdictValue};
ghost use Rattle.run_weave.specs.Lanes.{IsQuietly, Speaks, LaneSpeaks, LanesSpeak, lane_of, TargetsFit, OfCalls, told, told_lane};

/// Where the lanes make the calls, there is one history of all operations, in which each lane has just its own, in its
/// order, and which leads where the calls do.
pub fn operations_are_woven_into_calls()
    ensures { (past : List Phase) (o : Opened) (calls : List MadeCall) (k : Going) (lanes : List (List Done))
        → CallsLead (start_of past o) just_opened calls k → LanesSpeak o calls lanes → TargetsFit o
        → (h : List Made) × Follows past o just_opened h k × ByPasses (length lanes) h × (lanes_of (length lanes) h ≡ lanes) }
{}

/// The calls make a phase of which all holds, once each edit is told what comes of it.
pub fn calls_make_phases()
    ensures told { OfCalls (λ past p. IsPhase past (told p)) }
    ensures as_told { OfCalls (λ past p. VerdictsFit p → IsPhase past p) }
{}

/// Nothing is full where the operations may draw no more numbers than are noted.
pub fn calls_have_room()
    ensures { OfCalls (λ past p. HasRoom p) }
{}

/// The lanes make the calls where each lane makes those of its pass, and no other pass has any.
pub fn lanes_make_all_calls()
    ensures { (o : Opened) (calls : List MadeCall) (lanes : List (List Done)) → AllByRecursion (λ m. (0 < m.pass) × (m.pass ≤ length lanes)) calls
        → ((i : ℕ) → i < length lanes → LaneSpeaks o (calls_by (suc i) calls) (lane_of lanes (suc i))) → LanesSpeak o calls lanes }
{}

/// A lane that makes calls goes on with an operation that makes none, or with one more call.
pub fn lanes_go_on()
    ensures rests { (o : Opened) (calls : List Call) (lane : List Done) (d : Done) → LaneSpeaks o calls lane → IsQuietly o d.op d.reply → LaneSpeaks o calls (lane ++ d ∷ []) }
    ensures speaks { (o : Opened) (calls : List Call) (lane : List Done) (call : Call) (d : Done) → LaneSpeaks o calls lane → Speaks o call d.op d.reply → LaneSpeaks o (calls ++ call ∷ []) (lane ++ d ∷ []) }
{}

/// Lanes whose edits are told otherwise make the same calls.
pub fn told_lanes_make_the_same_calls()
    ensures { (verdicts : ℕ → VerdictValue) (o : Opened) (calls : List MadeCall) (lanes : List (List Done)) → LanesSpeak o calls lanes → LanesSpeak o calls (map (told_lane verdicts) lanes) }
{}

/// What a component opens with fits: a row that an id stands for is of the owner of the id.
pub fn targets_of_components_fit()
    ensures { (component : ComponentValue) (held : Held) → IsKept component → RowsFit component (state_of held) → TargetsFit (opened_of component held) }
{}
