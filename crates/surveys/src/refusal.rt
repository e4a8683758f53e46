// Why calls are refused, an enum for each call, so that a call can only answer what it may. Each says its printed number itself and there is
// no trait for it, since nothing is generic over refusals.
pub mod giving_back;
pub mod issuing;
pub(crate) mod no_room;
pub mod recalling;
pub mod settling;
pub mod terms;
pub mod working;
