//! The registry.
//!
//! It keeps two lists: configurations, the first of which is the default, and instances, each with
//! the index of its configuration. Both only grow, and a call that allocates changes its list last.
//! So a call that returns an error leaves both as they were, and an id names one instance for good.

ghost use Rattle.std.specs.Prelude.{◌≡◌, ◌≢◌, ℕ, List, ◌<◌, ◌↔◌, ◌∷◌, [], length, option_map, Some, None, Ok, IsTrue, IsSome, IsErrOf, IsErrAnd, IfOk, IfErr, IfSome, IfNone, OnOk, OnErr};
ghost use Rattle.resil_registry.specs.Entries.{names_of};
ghost use Rattle.resil_name.specs.Name.{IsName};
ghost use Rattle.resil_registry.specs.Registry.{default_name, config_index, config_of, instance_id, instance_at, with_config, with_instance, CreatesInstance, IsFreeName, IsConfigError, IsInstanceError, RegistryInvariant};
ghost use Rattle.std.specs.Borrow.{Bor};
ghost use Rattle.std.specs.List.{IsDistinct};
ghost use Rattle.std.specs.Str.{bytes_eq};
ghost use Rattle.std.specs.Map.Iter.{ShowsInOrder};

use crate::entries::Entries;
use crate::error::RegistryError;
use crate::names::Names;
use resil_name::is_name;
use std::alloc::Global;
use std::marker::Model;

/// The name of the configuration that a registry is made with (Resilience4j user guide, Bulkhead).
pub const DEFAULT_CONFIG: &str = "default";

// The index of the default configuration, which is the first.
const DEFAULT_INDEX: usize = 0;

/// Named configurations, and named instances of them.
///
/// ```
/// let mut registry: Registry<u32> = Registry::new(alloc, 25).map_err(|refused| refused.0)?;
/// let prices = registry.obtain("prices")?;
/// ```
///
/// In a whole program: crates/resil_guide/src/registry.rt.
#[derive(Drop)]
pub struct Registry<C> {
    configurations: Entries<C>,
    instances: Entries<usize>,
}

impl<C> Model for Registry<C> {
    ghost use Rattle.resil_registry.specs.Registry.{RegistryView, RegistryInvariant};

    ghost Value = { RegistryView C };

    ghost view = { λ r. record { configurations = r.configurations; instances = r.instances } };

    ghost invariant = { λ r. RegistryInvariant (record { configurations = r.configurations; instances = r.instances }) };
}

impl<C: Drop> Registry<C> {
    /// Makes a registry without instances, with this value as the configuration `default`.
    ///
    /// # Errors
    ///
    /// `Memory` if out of memory; the configuration comes back.
    pub fn new(alloc: Global, default: C) -> Result<Registry<C>, (RegistryError, C)>
        ensures made { IfOk result (λ r. r ≡ record { configurations = (default_name, default) ∷ []; instances = [] }) }
        ensures refused { IfErr result (λ refused. refused ≡ (RegistryError.Memory, default)) }
    {
        let mut configurations = Entries::new(alloc);
        match configurations.append(DEFAULT_CONFIG, default) {
            Ok(_) => Ok(Registry {
                configurations,
                instances: Entries::new(alloc),
            }),
            Err(default) => Err((RegistryError::Memory, default)),
        }
    }

    /// Adds a configuration.
    ///
    /// # Errors
    ///
    /// In this order, with nothing changed and the configuration returned: `BadName` if the name
    /// isn't 1 to 64 bytes of ASCII letters, digits, `-`, `_` and `.`; `ReservedName` if it is
    /// `default`; `NameTaken` if a configuration has that name; `Memory` if out of memory.
    ///
    /// ```
    /// match registry.add_config("small", 2) {
    ///     Ok(()) => println!(rt; "added")?,
    ///     Err((error, _config)) => println!(rt; "{error}")?,
    /// }
    /// ```
    pub fn add_config(&mut self, name: &str, config: C) -> Result<(), (RegistryError, C)>
        ensures added { OnOk result (self.new ≡ with_config self.old name.now config) }
        ensures free { OnOk result (IsFreeName self.old name.now) }
        ensures bad_name { IsErrAnd result (λ e. e.0 ≡ RegistryError.BadName) ↔ ¬ IsName name.now }
        ensures reserved { IsErrAnd result (λ e. e.0 ≡ RegistryError.ReservedName) ↔ (IsName name.now × (name.now ≡ default_name)) }
        ensures taken { IsErrAnd result (λ e. e.0 ≡ RegistryError.NameTaken) ↔ (IsName name.now × (name.now ≢ default_name) × IsSome (config_index self.old name.now)) }
        ensures refused { IfErr result (λ e. IsConfigError self.old name.now e.0) }
        ensures unchanged { OnErr result (self.new ≡ self.old) }
        ensures config_back { IfErr result (λ e. e.1 ≡ config) }
    {
        if !is_name(name) {
            return Err((RegistryError::BadName, config));
        }
        if name == DEFAULT_CONFIG {
            return Err((RegistryError::ReservedName, config));
        }
        if self.configurations.index_of(name).is_some() {
            return Err((RegistryError::NameTaken, config));
        }
        match self.configurations.append(name, config) {
            Ok(_) => Ok(()),
            Err(config) => Err((RegistryError::Memory, config)),
        }
    }

    /// Returns the id of the instance with that name, made with the configuration `default` if
    /// there is none.
    ///
    /// # Errors
    ///
    /// In this order, with nothing changed: `BadName` if the name isn't 1 to 64 bytes of ASCII
    /// letters, digits, `-`, `_` and `.`; `Memory` if out of memory.
    ///
    /// ```
    /// let prices = registry.obtain("prices")?;
    /// let again = registry.obtain("prices")?;
    /// assert_eq!(rt; again, prices);
    /// ```
    pub fn obtain(&mut self, name: &str) -> Result<usize, RegistryError>
        ensures known { IfSome (instance_id self.old name.now) (λ id. (result ≡ Ok id) × (self.new ≡ self.old)) }
        ensures made { IfOk result (λ id. IfNone (instance_id self.old name.now) (CreatesInstance self.old name.now default_name id self.new)) }
        ensures bad_name { IsErrOf result RegistryError.BadName ↔ ¬ IsName name.now }
        ensures refused { IfErr result (IsInstanceError self.old name.now default_name) }
        ensures default_is_there { IfErr result (λ e. e ≢ RegistryError.NoSuchConfig) }
        ensures unchanged { OnErr result (self.new ≡ self.old) }
    {
        if let Some(id) = self.instance_id(name)? {
            return Ok(id);
        }
        self.create(name, DEFAULT_INDEX)
    }

    /// Returns the id of the instance with that name, made with the named configuration if there is
    /// none. If there is one, that configuration isn't looked up.
    ///
    /// # Errors
    ///
    /// In this order, with nothing changed: `BadName` if the instance's name isn't 1 to 64 bytes of
    /// ASCII letters, digits, `-`, `_` and `.`; `NoSuchConfig` if no configuration has the other
    /// name; `Memory` if out of memory.
    ///
    /// ```
    /// registry.add_config("small", 2).map_err(|refused| refused.0)?;
    /// let letters = registry.obtain_with("letters", "small")?;
    /// ```
    pub fn obtain_with(&mut self, name: &str, config: &str) -> Result<usize, RegistryError>
        ensures known { IfSome (instance_id self.old name.now) (λ id. (result ≡ Ok id) × (self.new ≡ self.old)) }
        ensures made { IfOk result (λ id. IfNone (instance_id self.old name.now) (CreatesInstance self.old name.now config.now id self.new)) }
        ensures bad_name { IsErrOf result RegistryError.BadName ↔ ¬ IsName name.now }
        ensures no_such_config { IsErrOf result RegistryError.NoSuchConfig ↔ (IsName name.now × (instance_id self.old name.now ≡ None) × (config_index self.old config.now ≡ None)) }
        ensures refused { IfErr result (IsInstanceError self.old name.now config.now) }
        ensures unchanged { OnErr result (self.new ≡ self.old) }
    {
        if let Some(id) = self.instance_id(name)? {
            return Ok(id);
        }
        match self.configurations.index_of(config) {
            Some(index) => self.create(name, index),
            None => Err(RegistryError::NoSuchConfig),
        }
    }

    // The id of the instance with that name, if there is one. Errors: `BadName` if the string isn't a name.
    fn instance_id(&self, name: &str) -> Result<Option<usize>, RegistryError>
        ensures found { IfOk result (λ id. id ≡ instance_id self.now name.now) }
        ensures good { OnOk result (IsName name.now) }
        ensures refused { IfErr result (λ error. error ≡ RegistryError.BadName) }
        ensures bad_name { OnErr result (¬ IsName name.now) }
        ensures unknown { OnErr result (instance_id self.now name.now ≡ None) }
        ensures kept { RegistryInvariant self.now }
    {
        let id = self.instances.index_of(name);
        if is_name(name) {
            Ok(id)
        } else {
            Err(RegistryError::BadName)
        }
    }

    // Makes an instance with the configuration at that index, and returns its id. Errors: `Memory`,
    // with nothing changed.
    fn create(&mut self, name: &str, index: usize) -> Result<usize, RegistryError>
        requires good { IsName name.now }
        requires new { instance_id self.old name.now ≡ None }
        requires configured { index < length self.old.configurations }
        ensures id { IfOk result (λ id. id ≡ length self.old.instances) }
        ensures made { OnOk result (self.new ≡ with_instance self.old name.now index) }
        ensures refused { IfErr result (λ error. error ≡ RegistryError.Memory) }
        ensures unchanged { OnErr result (self.new ≡ self.old) }
    {
        self.instances
            .append(name, index)
            .map_err(|_| RegistryError::Memory)
    }
}

impl<C> Registry<C> {
    /// Returns the name and the configuration of the instance with that id, if there is one.
    ///
    /// ```
    /// if let Some((name, max)) = registry.get(id) {
    ///     println!(rt; "{name}: {max}")?;
    /// }
    /// ```
    pub fn get(&self, id: usize) -> Option<(&str, &C)>
        ensures instance { option_map (λ instance. (instance.0.now, instance.1.now)) result ≡ instance_at self.now id }
        ensures found { IsSome result ↔ (id < length self.now.instances) }
        ensures kept { RegistryInvariant self.now }
    {
        let (name, index) = self.instances.get(id)?;
        let (_, config) = self.configurations.get(*index)?;
        Some((name, config))
    }

    /// Returns the id of the instance with that name, if there is one. It makes none.
    ///
    /// ```
    /// if let Some(id) = registry.find("prices") {
    ///     println!(rt; "instance {id}")?;
    /// }
    /// ```
    pub fn find(&self, name: &str) -> Option<usize>
        ensures id { result ≡ instance_id self.now name.now }
        ensures good { IfSome result (λ _. IsName name.now) }
    {
        self.instances.index_of(name)
    }

    /// Returns the configuration with that name, if there is one.
    ///
    /// ```
    /// let permits = registry.config("small");
    /// ```
    pub fn config(&self, name: &str) -> Option<&C>
        ensures { option_map (λ config. config.now) result ≡ config_of self.now name.now }
    {
        let index = self.configurations.index_of(name)?;
        let (_, config) = self.configurations.get(index)?;
        Some(config)
    }

    /// Returns the names of the instances, in order of id.
    pub fn names(&self) -> Names<'_>
        ensures names { result ≡ names_of self.now.instances }
        ensures distinct { IsDistinct bytes_eq (names_of self.now.instances) }
        ensures runs { ShowsInOrder (λ (name : Bor (List ℕ)). name.now) }
        ensures kept { RegistryInvariant self.now }
    {
        Names::new(self.instances.keys())
    }

    /// Returns the number of instances.
    pub fn len(&self) -> usize
        ensures { result ≡ length self.now.instances }
    {
        self.instances.len()
    }

    /// Returns whether there is no instance.
    pub fn is_empty(&self) -> bool
        ensures { IsTrue result ↔ (self.now.instances ≡ []) }
    {
        self.len() == 0
    }
}
