//! A core may be moved to another thread.
ghost use Rattle.std.specs.Prelude.{◌≡◌};

use crate::kernel::Core;
use samoa_micro::Micro;
use std::marker::Send;

fn sent<T: Send>(value: T) -> T
    ensures { result ≡ value }
{
    value
}

/// The core as it is: it may be moved to another thread, if its microprotocols may.
pub fn sent_core<B: Micro + Send>(core: Core<B>) -> Core<B>
    ensures { result ≡ core }
{
    sent(core)
}
