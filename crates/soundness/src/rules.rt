// Which rules an image is held to.

// R-2's and later, by which a waiting grant has tokens; or those before, by which it has a service number.
#[derive(Clone, Copy)]
pub enum Rules {
    Early,
    Before,
}
