// Laws of reading and writing.
ghost use Rattle.std.specs.Prelude.{◌^◌};
ghost use Rattle.psa_names.specs.{Laws.AreBasesNamed, Laws.AreTypesNamed, Laws.IsReadBack, Laws.TakesNumbers, Names.key_type_text, Names.lifetime_text, Names.read_key_type, Names.read_lifetime, Names.read_step, Names.step_text, Usages.read_usage, Usages.usage_text, Algorithms.algorithm_text, Algorithms.read_algorithm};

/// What is written of a number, of whatever kind, reads back to it.
pub fn written_is_read()
    ensures key_types { IsReadBack (2 ^ 16) key_type_text read_key_type }
    ensures usages { IsReadBack (2 ^ 32) usage_text read_usage }
    ensures algorithms { IsReadBack (2 ^ 32) algorithm_text read_algorithm }
    ensures lifetimes { IsReadBack (2 ^ 32) lifetime_text read_lifetime }
    ensures steps { IsReadBack (2 ^ 16) step_text read_step }
{}

/// A text that a script has as a number is read as that number.
pub fn numbers_come_first()
    ensures key_types { TakesNumbers 4 (2 ^ 16) read_key_type }
    ensures usages { TakesNumbers 8 (2 ^ 32) read_usage }
    ensures algorithms { TakesNumbers 8 (2 ^ 32) read_algorithm }
    ensures lifetimes { TakesNumbers 8 (2 ^ 32) read_lifetime }
    ensures steps { TakesNumbers 4 (2 ^ 16) read_step }
{}

/// Each type and each algorithm that is built has a name.
pub fn all_are_named()
    ensures key_types { AreTypesNamed }
    ensures algorithms { AreBasesNamed }
{}
