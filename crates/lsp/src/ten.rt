//! The ten LSPs.
ghost use Rattle.std.specs.Prelude.{◌≡◌, ℕ, ◌*◌, ◌^◌, ◌<◌};
ghost use Rattle.std.specs.Mem.{type_size};
ghost use Rattle.lsp.specs.Ten.{ten};

use std::array::from_fn;

// One of the ten LSPs, by its index: LSP 1 has index 0.
#[derive(Clone, Copy)]
pub(crate) struct Lsp {
    pub(crate) index: usize,
    ghost one_of_ten: { index < 10 },
}

impl Lsp {
    ghost use Rattle.lsp.specs.declared.ten.Lsp.{Lsp};

    // What f answers for each LSP, LSP 1 first: `ten value`, if f answers `value i` for the LSP at index i. Ten answers have
    // to fit in memory.
    pub(crate) fn each<T, F: Fn(Lsp) -> T>(f: F) -> [T; 10]
        requires fits { 10 * type_size T.row < 2 ^ 63 }
        requires callable { (lsp : Lsp) → F.pre f lsp }
        ensures { (value : ℕ → T) → ((lsp : Lsp) (x : T) → F.post f lsp x → x ≡ value lsp.index) → result ≡ ten value }
    {
        from_fn(
            |i|
                requires { (i < 10) × ((lsp : Lsp) → F.pre f lsp) }
            { f(Lsp { index: i }) },
        )
    }
}
