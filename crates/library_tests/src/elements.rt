// A secure element in memory that is full.
ghost use Rattle.std.specs.Prelude.{◌≡◌};
ghost use Rattle.driver_dispatch.specs.Held.{no_keys};

use driver_dispatch::Driver;
use key_attributes::KeyType;
use soft_driver::SoftDriver;
use std::test::Fail;

// How many of 4,097 keys a new driver takes.
fn held_by(driver: &mut SoftDriver) -> usize
    requires { driver.old.keys ≡ no_keys }
{
    let mut held = 0;
    for handle in 0..4097u64 {
        if driver.import_key(handle, KeyType::RAW_DATA, b"key").is_ok() {
            held += 1;
        }
    }
    held
}

#[test]
fn a_driver_holds_4096_keys(rt: HostRuntime) -> Result<(), Fail> {
    let alloc = rt.alloc();
    let Ok(mut driver) = SoftDriver::new(alloc, 1, Vec::new(alloc)) else {
        return Err("memory")?;
    };
    assert!(rt; held_by(&mut driver) == 4096);
    Ok(())
}
