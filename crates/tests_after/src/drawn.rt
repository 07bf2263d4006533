//! Days as pictures, and what they show.

mod courses;
mod faults;
mod marks;
mod pictures;
mod sizes;
