// What a package takes of a fraction.
use crate::shape::Shape;

#[derive(Clone, Copy)]
pub(crate) struct Extent {
    pub(crate) shape: Shape,
    pub(crate) scale: u16,
    pub(crate) groups: u16,
    pub(crate) weight: i16,
}
