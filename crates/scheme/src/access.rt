// Kinds of access and privilege modes, and their names.
ghost use Rattle.std.specs.Prelude.{◌≡◌, Some};
ghost use Rattle.scheme.specs.Access.{cause_of, access_name, privilege_name};

use std::fmt;

#[derive(Clone, Copy)]
pub enum AccessType {
    Fetch,
    Load,
    Store,
}

#[derive(Clone, Copy)]
pub enum PrivMode {
    U,
    S,
    M,
}

impl AccessType {
    // The cause of a page fault on this access. A match and no discriminants: the number is document 01's, and is stated by its definition.
    pub fn page_fault_cause(self) -> u32
        ensures { result ≡ cause_of self }
    {
        match self {
            AccessType::Fetch => 12,
            AccessType::Load => 13,
            AccessType::Store => 15,
        }
    }
}

impl fmt::Display for AccessType {
    ghost output = { λ k. Some (access_name k) };

    fn fmt<W: fmt::Write>(&self, f: &mut fmt::Formatter<W>) -> fmt::Result {
        f.write_str(match self {
            AccessType::Fetch => "fetch",
            AccessType::Load => "load",
            AccessType::Store => "store",
        })
    }
}

impl fmt::Display for PrivMode {
    ghost output = { λ m. Some (privilege_name m) };

    fn fmt<W: fmt::Write>(&self, f: &mut fmt::Formatter<W>) -> fmt::Result {
        f.write_str(match self {
            PrivMode::U => "U",
            PrivMode::S => "S",
            PrivMode::M => "M",
        })
    }
}
