//! What names a pool.

use std::marker::Brand;
use tp_glance::glance::Naming;

/// Names one pool, with the settings that it was made with: beside its ledger and its word, which
/// `Naming` names. A caller picks the name at the call of the function that opens the pool.
pub trait PoolNaming: Naming {
    ghost use Rattle.tp_types.specs.declared.configs.Config.{Config};

    ghost config: { Config };
}

impl PoolNaming for Brand {
    ghost use Rattle.tp_pool_holds.specs.Names.{no_config};

    ghost config = { no_config };
}
