//! The registry.
//!
//! The names and configurations are in a registry of numbers of permits, and the bulkhead of each
//! instance is stored at the instance's id. A bulkhead is added before its name is, and removed again
//! if there is no memory for the name: so a call that returns an error leaves everything as it was.

ghost use Rattle.std.specs.Prelude.{◌≡◌, ◌≢◌, ◌⊎◌, ℕ, ◌<◌, ◌∷◌, [], length, map, slice_get, Some, None, IsSome, IfOk, IfErr, IfSome, IfNone, OnOk, OnErr, IsErrOf, ◌↔◌};
ghost use Rattle.std.specs.Arc.{arc_value};
ghost use Rattle.resil_name.specs.Name.{IsName};
ghost use Rattle.resil_registry.specs.Registry.{default_name, instance_id, config_of, with_config, CreatesInstance, IsConfigError};
ghost use Rattle.resil_bulkheads.specs.Bulkheads.{bulkhead_of, AddsBulkhead};

use resil_bulkhead::Bulkhead;
use resil_registry::{DEFAULT_CONFIG, Registry, RegistryError, is_name};
use std::alloc::Global;
use std::marker::Model;
use std::sync::Arc;

/// Named numbers of permits, and the one bulkhead of each name.
///
/// ```
/// let mut registry = BulkheadRegistry::new(alloc, 25)?;
/// registry.add_config("small", 2)?;
/// let letters = registry.bulkhead_with(alloc, "letters", "small")?;
/// ```
///
/// In a whole program: crates/resil_guide/src/service.rt.
#[derive(Drop)]
pub struct BulkheadRegistry {
    names: Registry<u16>,
    bulkheads: Vec<Arc<Bulkhead>>,
}

impl Model for BulkheadRegistry {
    ghost use Rattle.std.specs.Prelude.{map};
    ghost use Rattle.std.specs.Arc.{arc_value};
    ghost use Rattle.resil_bulkheads.specs.Bulkheads.{BulkheadsView, BulkheadsInvariant};

    ghost Value = { BulkheadsView };

    ghost view = { λ r. record { lists = r.names; bulkheads = map arc_value r.bulkheads.items } };

    ghost invariant = { λ r. BulkheadsInvariant (record { lists = r.names; bulkheads = map arc_value r.bulkheads.items }) };
}

impl BulkheadRegistry {
    /// Makes a registry without bulkheads. By its configuration `default` a bulkhead permits at
    /// most `max` concurrent calls, 0 to 65,535.
    ///
    /// # Errors
    ///
    /// `Memory` if out of memory.
    pub fn new(alloc: Global, max: u16) -> Result<BulkheadRegistry, RegistryError>
        ensures made { IfOk result (λ r. r ≡ record { lists = record { configurations = (default_name, max) ∷ []; instances = [] }; bulkheads = [] }) }
        ensures refused { IfErr result (λ refused. refused ≡ RegistryError.Memory) }
    {
        match Registry::new(alloc, max) {
            Ok(names) => Ok(BulkheadRegistry {
                names,
                bulkheads: Vec::new(alloc),
            }),
            Err((refused, _)) => Err(refused),
        }
    }

    // A registry of these configurations, without bulkheads.
    pub(crate) fn of(alloc: Global, names: Registry<u16>) -> BulkheadRegistry
        requires blank { names.instances ≡ [] }
        requires default { IsSome (config_of names default_name) }
        ensures { result ≡ record { lists = names; bulkheads = [] } }
    {
        BulkheadRegistry {
            names,
            bulkheads: Vec::new(alloc),
        }
    }

    /// Adds a configuration by which a bulkhead permits at most `max` concurrent calls, 0 to 65,535.
    ///
    /// # Errors
    ///
    /// In this order, with nothing changed: `BadName` if the name isn't 1 to 64 bytes of ASCII
    /// letters, digits, `-`, `_` and `.`; `ReservedName` if it is `default`; `NameTaken` if a
    /// configuration has that name; `Memory` if out of memory.
    pub fn add_config(&mut self, name: &str, max: u16) -> Result<(), RegistryError>
        ensures added { OnOk result (self.new.lists ≡ with_config self.old.lists name.now max) }
        ensures kept { self.new.bulkheads ≡ self.old.bulkheads }
        ensures refused { IfErr result (IsConfigError self.old.lists name.now) }
        ensures unchanged { OnErr result (self.new ≡ self.old) }
    {
        match self.names.add_config(name, max) {
            Ok(()) => Ok(()),
            Err((refused, _)) => Err(refused),
        }
    }

    /// Returns the index of the bulkhead with that name among all of them, if there is one.
    ///
    /// ```
    /// let first = registry.id("prices");
    /// ```
    pub fn id(&self, name: &str) -> Option<usize>
        ensures { result ≡ instance_id self.now.lists name.now }
    {
        self.names.find(name)
    }

    /// Returns the bulkhead with that name, if there is one. It makes none, so threads that share
    /// the registry by `&` need no lock.
    ///
    /// ```
    /// if let Some(prices) = registry.find("prices") {
    ///     println!(rt; "{} calls at once", prices.max())?;
    /// }
    /// ```
    pub fn find(&self, name: &str) -> Option<&Bulkhead>
        ensures none { IfNone result (bulkhead_of self.now name.now ≡ None) }
        ensures some { IfSome result (λ bulkhead. bulkhead_of self.now name.now ≡ Some bulkhead.now) }
    {
        let id = self.names.find(name)?;
        let bulkhead = self.bulkheads.get(id)?;
        Some(&**bulkhead)
    }

    /// Returns all bulkheads, in the order in which they were made.
    ///
    /// ```
    /// for bulkhead in registry.bulkheads() {
    ///     println!(rt; "{}: {}", bulkhead.name(), bulkhead.max())?;
    /// }
    /// ```
    pub fn bulkheads(&self) -> &[Arc<Bulkhead>]
        ensures { map arc_value result.now ≡ self.now.bulkheads }
    {
        self.bulkheads.as_slice()
    }

    /// Returns the one bulkhead with that name, made with the configuration `default` if there is
    /// none.
    ///
    /// # Errors
    ///
    /// In this order, with nothing changed: `BadName` if the name isn't 1 to 64 bytes of ASCII
    /// letters, digits, `-`, `_` and `.`; `Memory` if out of memory.
    ///
    /// ```
    /// let prices = registry.bulkhead(alloc, "prices")?;
    /// let again = registry.bulkhead(alloc, "prices")?;
    /// ```
    pub fn bulkhead(&mut self, alloc: Global, name: &str) -> Result<Arc<Bulkhead>, RegistryError>
        ensures shared { IfOk result (λ bulkhead. bulkhead_of self.new name.now ≡ Some (arc_value bulkhead)) }
        ensures known { IfSome (instance_id self.old.lists name.now) (λ _. self.new ≡ self.old) }
        ensures made { IfOk result (λ _. IfNone (instance_id self.old.lists name.now) (CreatesInstance self.old.lists name.now default_name (length self.old.bulkheads) self.new.lists)) }
        ensures added { IfOk result (λ bulkhead. IfNone (instance_id self.old.lists name.now) (AddsBulkhead self.old name.now default_name (arc_value bulkhead) self.new)) }
        ensures bad_name { IsErrOf result RegistryError.BadName ↔ ¬ IsName name.now }
        ensures refused { IfErr result (λ e. (e ≡ RegistryError.BadName) ⊎ (e ≡ RegistryError.Memory)) }
        ensures unchanged { OnErr result (self.new ≡ self.old) }
    {
        self.bulkhead_with(alloc, name, DEFAULT_CONFIG)
    }

    /// Returns the one bulkhead with that name, made with the named configuration if there is none.
    /// If there is one, that configuration isn't looked up.
    ///
    /// # Errors
    ///
    /// In this order, with nothing changed: `BadName` if the bulkhead's name isn't 1 to 64 bytes of
    /// ASCII letters, digits, `-`, `_` and `.`; `NoSuchConfig` if no configuration has the other
    /// name; `Memory` if out of memory.
    pub fn bulkhead_with(
        &mut self,
        alloc: Global,
        name: &str,
        config: &str,
    ) -> Result<Arc<Bulkhead>, RegistryError>
        ensures shared { IfOk result (λ bulkhead. bulkhead_of self.new name.now ≡ Some (arc_value bulkhead)) }
        ensures known { IfSome (instance_id self.old.lists name.now) (λ _. self.new ≡ self.old) }
        ensures made { IfOk result (λ _. IfNone (instance_id self.old.lists name.now) (CreatesInstance self.old.lists name.now config.now (length self.old.bulkheads) self.new.lists)) }
        ensures added { IfOk result (λ bulkhead. IfNone (instance_id self.old.lists name.now) (AddsBulkhead self.old name.now config.now (arc_value bulkhead) self.new)) }
        ensures bad_name { IsErrOf result RegistryError.BadName ↔ ¬ IsName name.now }
        ensures no_such_config { IsErrOf result RegistryError.NoSuchConfig ↔ (IsName name.now × (instance_id self.old.lists name.now ≡ None) × (config_of self.old.lists config.now ≡ None)) }
        ensures default_is_there { config.now ≡ default_name → IfErr result (λ e. e ≢ RegistryError.NoSuchConfig) }
        ensures refused { IfErr result (λ e. (e ≡ RegistryError.BadName) ⊎ (e ≡ RegistryError.NoSuchConfig) ⊎ (e ≡ RegistryError.Memory)) }
        ensures unchanged { OnErr result (self.new ≡ self.old) }
    {
        if let Some(id) = self.names.find(name) {
            return self.share(id);
        }
        let Some(max) = self.names.config(config) else {
            return Err(if is_name(name) {
                RegistryError::NoSuchConfig
            } else {
                RegistryError::BadName
            });
        };
        let bulkhead = make(alloc, name, *max)?;
        self.add(name, config, bulkhead)
    }

    // The bulkhead of the instance with that id. Errors: `Memory`.
    fn share(&self, id: usize) -> Result<Arc<Bulkhead>, RegistryError>
        requires { id < length self.now.bulkheads }
        ensures shared { IfOk result (λ bulkhead. slice_get self.now.bulkheads id ≡ Some (arc_value bulkhead)) }
        ensures refused { IfErr result (λ refused. refused ≡ RegistryError.Memory) }
    {
        Arc::try_clone(&self.bulkheads[id]).map_err(|_| RegistryError::Memory)
    }

    // Adds a new name with its bulkhead. Errors: `Memory`, with nothing changed.
    fn add(
        &mut self,
        name: &str,
        config: &str,
        bulkhead: Arc<Bulkhead>,
    ) -> Result<Arc<Bulkhead>, RegistryError>
        requires new { instance_id self.old.lists name.now ≡ None }
        requires named { (arc_value bulkhead).name ≡ name.now }
        requires configured { config_of self.old.lists config.now ≡ Some (arc_value bulkhead).permits.max }
        ensures shared { IfOk result (λ b. bulkhead_of self.new name.now ≡ Some (arc_value b)) }
        ensures made { OnOk result (CreatesInstance self.old.lists name.now config.now (length self.old.bulkheads) self.new.lists) }
        ensures added { IfOk result (λ b. AddsBulkhead self.old name.now config.now (arc_value b) self.new) }
        ensures refused { IfErr result (λ refused. refused ≡ RegistryError.Memory) }
        ensures unchanged { OnErr result (self.new ≡ self.old) }
    {
        let Ok(shared) = Arc::try_clone(&bulkhead) else {
            return Err(RegistryError::Memory);
        };
        let Ok(()) = self.bulkheads.push(shared) else {
            return Err(RegistryError::Memory);
        };
        match self.names.obtain_with(name, config) {
            Ok(_) => Ok(bulkhead),
            Err(_) => {
                self.bulkheads.pop();
                Err(RegistryError::Memory)
            }
        }
    }
}

// A bulkhead that permits this many concurrent calls. Errors: `BadName`, `Memory`.
fn make(alloc: Global, name: &str, max: u16) -> Result<Arc<Bulkhead>, RegistryError>
    ensures name { IfOk result (λ b. (arc_value b).name ≡ name.now) }
    ensures max { IfOk result (λ b. (arc_value b).permits.max ≡ max) }
    ensures bad_name { IsErrOf result RegistryError.BadName ↔ ¬ IsName name.now }
    ensures refused { IfErr result (λ e. (e ≡ RegistryError.BadName) ⊎ (e ≡ RegistryError.Memory)) }
{
    if !is_name(name) {
        return Err(RegistryError::BadName);
    }
    let Ok((bulkhead, _pass)) = Bulkhead::new(alloc, name, u32::from(max)) else {
        return Err(RegistryError::Memory);
    };
    Arc::new(alloc, bulkhead).map_err(|_| RegistryError::Memory)
}
