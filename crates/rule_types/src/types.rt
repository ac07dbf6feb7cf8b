//! The types that are in the braces of IMPORT and of RUN.
ghost use Rattle.std.specs.Prelude.{◌≡◌, Some, IfSome};
ghost use Rattle.rule_types.specs.Names.{import_name, import_type_of, run_name, run_type_of};

/// Where IMPORT takes properties from.
#[derive(Clone, Copy, PartialEq, Eq)]
pub enum ImportType {
    /// `program`: the output of a command.
    Program,
    /// `builtin`: a command that is built into udev.
    Builtin,
    /// `file`: a file.
    File,
    /// `parent`: the parent device.
    Parent,
    /// `cmdline`: the kernel's command line.
    Cmdline,
    /// `db`: udev's database.
    Db,
}

/// What RUN runs.
#[derive(Clone, Copy, PartialEq, Eq)]
pub enum RunType {
    /// `program`: a command.
    Program,
    /// `builtin`: a command that is built into udev.
    Builtin,
}

/// All types of IMPORT.
const IMPORT_TYPES: [ImportType; 6] = [
    ImportType::Program,
    ImportType::Builtin,
    ImportType::File,
    ImportType::Parent,
    ImportType::Cmdline,
    ImportType::Db,
];

/// All types of RUN.
const RUN_TYPES: [RunType; 2] = [RunType::Program, RunType::Builtin];

impl ImportType {
    /// Its name, by which `import_type_of` finds it.
    #[tactic(auto, unfolding(crate::specs::Names::import_type_of))]
    pub fn name(self) -> &'static [u8]
        ensures name { result.now ≡ import_name self }
        ensures found { import_type_of (import_name self) ≡ Some self }
    {
        match self {
            ImportType::Program => b"program",
            ImportType::Builtin => b"builtin",
            ImportType::File => b"file",
            ImportType::Parent => b"parent",
            ImportType::Cmdline => b"cmdline",
            ImportType::Db => b"db",
        }
    }
}

impl RunType {
    /// Its name, by which `run_type_of` finds it.
    #[tactic(auto, unfolding(crate::specs::Names::run_type_of))]
    pub fn name(self) -> &'static [u8]
        ensures name { result.now ≡ run_name self }
        ensures found { run_type_of (run_name self) ≡ Some self }
    {
        match self {
            RunType::Program => b"program",
            RunType::Builtin => b"builtin",
        }
    }
}

/// The type of IMPORT with a name, if there is one.
#[tactic(auto, unfolding(crate::specs::Names::import_type_of))]
pub fn import_type_of(text: &[u8]) -> Option<ImportType>
    ensures known { result ≡ import_type_of text.now }
    ensures named { IfSome result (λ known. import_name known ≡ text.now) }
{
    IMPORT_TYPES
        .iter()
        .copied()
        .find(|known| known.name() == text)
}

/// The type of RUN with a name, if there is one.
#[tactic(auto, unfolding(crate::specs::Names::run_type_of))]
pub fn run_type_of(text: &[u8]) -> Option<RunType>
    ensures known { result ≡ run_type_of text.now }
    ensures named { IfSome result (λ known. run_name known ≡ text.now) }
{
    RUN_TYPES.iter().copied().find(|known| known.name() == text)
}
