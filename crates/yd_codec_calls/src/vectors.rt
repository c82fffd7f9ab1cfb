//! A state vector, written back in its one form.

use std::test::Fail;
use yd_v1::{read_vector, write_vector};

#[test]
fn a_vector_is_written_back_in_its_one_form(rt: HostRuntime) -> Result<(), Fail> {
    // Clients descend, one at clock 0 is left out, and of a client that comes twice the greatest
    // clock stays.
    let vector = read_vector(rt.alloc(), &[4, 1, 3, 2, 5, 1, 4, 3, 0])?;
    let bytes = write_vector(rt.alloc(), &vector)?;
    assert_eq!(rt; bytes.as_slice(), [2, 2, 5, 1, 4].as_slice());
    Ok(())
}
