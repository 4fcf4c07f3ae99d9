ghost use Rattle.std.specs.Prelude.{◌≡◌, if◌then◌else◌, Some, None};
ghost use Rattle.hdfs_values.specs.Replication.{is_replication};
ghost use Rattle.std.specs.Fmt.{decimal};

use std::fmt;
use std::marker::Model;

/// How many replicas of each of its blocks a file is to have: 1 to 16 (HDFS Architecture, "Data Replication").
#[derive(Clone, Copy, PartialEq, Eq)]
pub struct Repl {
    replicas: u8,
}

impl Model for Repl {
    ghost use Rattle.std.specs.Prelude.{ℕ, IsTrue};
    ghost use Rattle.hdfs_values.specs.Replication.{is_replication};

    ghost Value = { ℕ };

    ghost view = { λ replication. replication.replicas };

    ghost invariant = { λ replication. IsTrue (is_replication replication.replicas) };

    ghost inverse = { λ replicas. record { replicas = replicas } };
}

impl Repl {
    /// So many replicas; `None` for 0 and above 16.
    pub fn new(replicas: u8) -> Option<Repl>
        ensures { result ≡ (if is_replication replicas then Some replicas else None) }
    {
        if replicas == 0 || replicas > 16 {
            return None;
        }
        Some(Repl { replicas })
    }

    /// The number of replicas.
    pub fn get(self) -> u8
        ensures { result ≡ self }
    {
        self.replicas
    }
}

/// Prints the number in decimal.
impl fmt::Display for Repl {
    ghost output = { λ replication. Some (decimal replication) };

    fn fmt<W: fmt::Write>(&self, f: &mut fmt::Formatter<W>) -> fmt::Result {
        let replicas = self.replicas;
        write!(f, "{replicas}")
    }
}
