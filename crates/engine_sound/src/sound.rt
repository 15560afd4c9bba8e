// A state that was tested, as a type: whoever has one need not ask again.
ghost use Rattle.std.specs.Prelude.{◌≡◌, true};
ghost use Rattle.rules.specs.Sound.{sound};

use rules::State;

// It is lent, not copied.
#[derive(Clone, Copy)]
pub struct Sound<'a> {
    pub state: &'a State,
    pub ghost sound: { sound state.now ≡ true },
}
