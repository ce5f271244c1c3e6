//! Worked facts of the definitions. Each is the contract of a function that does nothing.
ghost use Rattle.std.specs.Prelude.{◌≡◌, [], ◌∷◌};
ghost use Rattle.values.specs.declared.plan.Fact.TheVariants as fact;
ghost use Rattle.run_meaning.specs.Run.{IsPhase};
ghost use Rattle.run_history.specs.Going.{start_of, Going, just_opened, note};
ghost use Rattle.run_history.specs.Calls.{CallsLead};
ghost use Rattle.run_weave.specs.Lanes.{LanesSpeak, phase_with};
ghost use Rattle.run_weave.specs.Worked.{area_opened, area_calls, area_lanes, area_end, store_opened, edits_calls, edits_lanes, edits_end, shared_calls, shared_lanes, shared_end, copy_opened, copy_calls, copy_lanes, copy_end, nested_opened, nested_calls};

/// An area that is disposed twice, and then a set of its signal.
pub fn disposed_area()
    ensures calls { CallsLead (start_of [] area_opened) just_opened area_calls area_end }
    ensures lanes { LanesSpeak area_opened area_calls area_lanes }
    ensures phase { IsPhase [] (phase_with area_opened 0 area_lanes area_end) }
{}

/// Edits of a store of one row.
pub fn edits_of_a_store()
    ensures calls { CallsLead (start_of [] store_opened) just_opened edits_calls edits_end }
    ensures lanes { LanesSpeak store_opened edits_calls edits_lanes }
    ensures phase { IsPhase [] (phase_with store_opened 0 edits_lanes edits_end) }
{}

/// The same by two lanes, with a get between them that makes no call.
pub fn shared_edits()
    ensures calls { CallsLead (start_of [] store_opened) just_opened shared_calls shared_end }
    ensures lanes { LanesSpeak store_opened shared_calls shared_lanes }
    ensures phase { IsPhase [] (phase_with store_opened 0 shared_lanes shared_end) }
{}

/// An effect that is pumped before and after a write of the signal that its memo copies, and once more.
pub fn copied_signal()
    ensures calls { CallsLead (start_of [] copy_opened) just_opened copy_calls copy_end }
    ensures lanes { LanesSpeak copy_opened copy_calls copy_lanes }
    ensures phase { IsPhase [] (phase_with copy_opened 0 copy_lanes copy_end) }
{}

/// An area with another in it: it is disposed from the inside, and no other entries come of it.
pub fn nested_areas()
    ensures { (k : Going) → CallsLead (start_of [] nested_opened) just_opened nested_calls k → k.entries ≡ note 1 (fact.Disposed 2) ∷ note 2 (fact.Disposed 1) ∷ [] }
{}
