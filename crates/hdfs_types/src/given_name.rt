ghost use Rattle.std.specs.Prelude.{◌≡◌, IfOk, option_copied};

use hdfs_values::who::Who;
use std::alloc::{AllocError, Global};
use std::marker::Model;

/// A name that is given, or left out. It stands in a box: few requests have one, and a history keeps many requests.
pub struct GivenName {
    name: Option<Box<Who>>,
}

impl Drop for GivenName {
    fn drop(self) {
        let GivenName { name } = self;
        drop(name);
    }
}

impl Model for GivenName {
    ghost use Rattle.std.specs.Prelude.{List, ℕ, Option};

    ghost Value = { Option (List ℕ) };

    ghost use Rattle.std.specs.Option.{option_map};

    ghost view = { λ given. option_map (λ name. name.value) given.name };
}

impl GivenName {
    /// This name, or none.
    ///
    /// # Errors
    /// Out of memory.
    pub fn new(alloc: Global, name: Option<Who>) -> Result<GivenName, AllocError>
        ensures { IfOk result (λ given. given ≡ name) }
    {
        match name {
            Some(name) => Ok(GivenName {
                name: Some(Box::new(alloc, name)?),
            }),
            None => Ok(GivenName { name: None }),
        }
    }

    /// The name, where one is given.
    pub fn get(&self) -> Option<&Who>
        ensures { option_copied result ≡ self.now }
    {
        match &self.name {
            Some(name) => Some(&**name),
            None => None,
        }
    }
}

impl Clone for GivenName {
    ghost is_clone = { λ given copy. copy ≡ given };

    fn clone(&self) -> Result<GivenName, AllocError> {
        match &self.name {
            Some(name) => Ok(GivenName {
                name: Some(name.clone()?),
            }),
            None => Ok(GivenName { name: None }),
        }
    }
}
