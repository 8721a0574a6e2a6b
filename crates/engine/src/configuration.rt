// Configurations as code holds them.
ghost use Rattle.std.specs.Prelude.{◌≡◌, length};

// A state, and the values of the registers.
#[derive(Drop)]
pub(crate) struct Configuration<V> {
    pub(crate) state: u8,
    pub(crate) registers: [V; 8],
    ghost eight: { length registers ≡ 8 },
}

impl<V> Configuration<V> {
    // A configuration of this state and these registers.
    pub(crate) fn new(state: u8, registers: [V; 8]) -> Configuration<V>
        ensures state { result.state ≡ state }
        ensures registers { result.registers ≡ registers }
    {
        Configuration { state, registers }
    }
}

// A configuration, and its entry in the book.
#[derive(Drop)]
pub(crate) struct Entered<V> {
    pub(crate) configuration: Configuration<V>,
    pub(crate) entry: u16,
}
