//! The journal of a checkpoint: its stages over any disk, each of which a crash or a fault may end.
//!
//! A checkpoint writes copies of the changed pages past the file's pages, opens the gate, writes the copies over the
//! home pages, closes the gate and cuts the file. At each moment a crash leaves the pages kept last or the checkpoint's.
#![tactic(auto)]

mod checkpoint;
pub mod copies;
mod gate;
mod home;
mod journal;
pub mod laws;
pub mod limits;
mod look;
pub mod looked;
mod reading;
mod recovery;
pub mod stage;
mod writing;

pub use checkpoint::complete;
pub use copies::Copies;
pub use gate::cut;
pub use looked::Looked;
pub use recovery::recover;
pub use stage::Stage;
