// The bytes of a state that are long enough and in form, as a type.
ghost use Rattle.std.specs.Prelude.{◌≤◌, T, length};
ghost use Rattle.state.specs.Layout.{state_size};
ghost use Rattle.state.specs.Form.{in_form};

// What a lent state is once it has been checked.
#[derive(Clone, Copy)]
pub struct InForm<'a> {
    pub bytes: &'a [u8],
    pub ghost long: { state_size ≤ length bytes.now },
    pub ghost sound: { T (in_form bytes.now) },
}
