//! The laws on types of used units that fit those of a scope.

ghost use Rattle.imported_types_agree.specs.compatible_types.Fits.{AreFit};

/// The types that a told interface shows fit those of a told scope, and it stays told with them; so it is with several used units, one
/// behind the other.
pub fn fitting_laws()
    ensures { AreFit }
{}
