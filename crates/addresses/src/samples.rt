// The samples, as facts over their collections.
ghost use Rattle.addresses.specs.Samples.{SamplesHold};
ghost use Rattle.addresses.specs.Corners.{CornersHold};

pub fn samples_hold()
    ensures { SamplesHold }
{}

pub fn corners_hold()
    ensures { CornersHold }
{}
