//! One file.
ghost use Rattle.std.specs.Prelude.{◌≤◌, length};
ghost use Rattle.site_model.specs.Disk.{AreBytes};
ghost use Rattle.std.proofs.Props.{props};

use crate::tear::Tear;
use std::alloc::{AllocError, Global};

/// A file at a server, of which the first bytes are firm.
#[derive(Drop)]
pub struct Stored {
    pub server: u32,
    pub name: String,
    pub bytes: Vec<u8>,
    /// How many bytes a stop leaves for sure.
    pub firm: usize,
    /// Whether a stop leaves the file for sure.
    pub is_named: bool,
    ghost front: { firm ≤ length bytes.items },
    ghost are_bytes: { AreBytes bytes.items } by { Prim.hlevel props },
}

impl Stored {
    ghost use Rattle.std.specs.Prelude.{◌≡◌, ◌++◌, ◌∷◌, [], map, Some, IfOk, OnOk, OnErr, string_bytes};
    ghost use Rattle.site_model.specs.Disk.{grown, synced, cut_to, firm_file};
    ghost use Rattle.site_mem.specs.Events.{is_place};
    ghost use Rattle.site_mem.specs.Kept.{file_of, place_kept, names_at};
    ghost use Rattle.site_mem.specs.Torn.{torn_file, bytes_left};

    /// A firm file of these bytes.
    pub fn firm(alloc: Global, server: u32, name: &str, bytes: &[u8]) -> Result<Self, AllocError>
        ensures place { IfOk result (λ file. place_kept file ≡ (server, name.now)) }
        ensures file { IfOk result (λ file. file_of file ≡ firm_file bytes.now) }
    {
        Ok(Stored {
            server,
            name: name.to_string(alloc)?,
            bytes: bytes.to_vec(alloc)?,
            firm: bytes.len(),
            is_named: true,
        })
    }

    /// Whether it is the file of this name at this server.
    pub fn is_at(&self, server: u32, name: &str) -> bool
        ensures { result ≡ is_place (place_kept self.now) (server, name.now) }
    {
        self.server == server && self.name.as_str() == name
    }

    /// Puts bytes behind its own.
    pub fn grow(&mut self, bytes: &[u8]) -> Result<(), AllocError>
        ensures place { place_kept self.new ≡ place_kept self.old }
        ensures ok { OnOk result (file_of self.new ≡ grown (Some (file_of self.old)) bytes.now) }
        ensures err { OnErr result (file_of self.new ≡ file_of self.old) }
    {
        self.bytes.extend_from_slice(bytes)?;
        Ok(())
    }

    /// Makes it firm.
    pub fn sync(&mut self)
        ensures place { place_kept self.new ≡ place_kept self.old }
        ensures file { Some (file_of self.new) ≡ synced (Some (file_of self.old)) }
    {
        self.firm = self.bytes.len();
        self.is_named = true;
    }

    /// Ends it at this length, or leaves it where it ends before.
    pub fn cut(&mut self, length: u64)
        ensures place { place_kept self.new ≡ place_kept self.old }
        ensures file { Some (file_of self.new) ≡ cut_to length (Some (file_of self.old)) }
    {
        let length = length as usize;
        self.bytes.truncate(length);
        self.firm = self.firm.min(length);
    }

    /// Gives it another name.
    pub fn set_name(&mut self, name: String)
        ensures place { place_kept self.new ≡ (self.old.server, string_bytes name) }
        ensures file { file_of self.new ≡ file_of self.old }
    {
        self.name = name;
    }

    /// Adds its name, if it is at this server.
    pub fn add_name(
        &self,
        alloc: Global,
        server: u32,
        names: &mut Vec<String>,
    ) -> Result<(), AllocError>
        ensures { OnOk result (map string_bytes names.new.items ≡ map string_bytes names.old.items ++ names_at
            server (self.now ∷ [])) }
    {
        if self.server == server {
            names.push(self.name.as_str().to_string(alloc)?)?;
        }
        Ok(())
    }

    /// The bytes that a stop leaves, if it leaves the file.
    pub fn torn(&self, alloc: Global, tear: Tear) -> Result<Option<Vec<u8>>, AllocError>
        ensures { IfOk result (λ left. bytes_left left ≡ torn_file tear (file_of self.now)) }
    {
        let firm = &self.bytes[..self.firm];
        let pending = self.bytes.len() - self.firm;
        match tear {
            Tear::None => {
                if !self.is_named {
                    return Ok(None);
                }
                Ok(Some(firm.to_vec(alloc)?))
            }
            Tear::All => Ok(Some(self.bytes.as_slice().to_vec(alloc)?)),
            Tear::Half => Ok(Some(self.bytes[..self.firm + pending / 2].to_vec(alloc)?)),
            Tear::Fill(value) => {
                let mut bytes = firm.to_vec(alloc)?;
                bytes.resize(self.bytes.len(), value)?;
                Ok(Some(bytes))
            }
        }
    }
}
