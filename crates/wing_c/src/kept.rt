// A state's bytes after a call: the store is used where it stands, and the control is laid before it.
ghost use Rattle.std.specs.Prelude.{◌≡◌, true, length};
ghost use Rattle.wing_wire.specs.State.{sound_state};
ghost use Rattle.wing_saved.specs.Saved.{Saves, saved_size};
ghost use Rattle.wing_c.specs.Kept.{state_in};

use wing_wire::state::Control;

// The fields of a control before its store, where those of another stood: the bytes are then a sound state's.
pub(crate) fn keep(state: &mut [u8], after: Control)
    requires { (sound_state (state_in after state.old) ≡ true) × (length state.old ≡ saved_size) }
    ensures { Saves state.new (state_in after state.old) }
{
    // There is room: the state has its whole size.
    let _ = wing_saved::lay_head(state, after);
}
