// What holds of images, each on the contract of a function.
ghost use Rattle.image.specs.Laws.{OneConfiguration, OneImage, ReadingExact};

// An image stands for one configuration alone.
pub fn images_have_one_configuration()
    ensures { OneConfiguration }
{}

// A configuration that fits a length has exactly one image of that length.
pub fn configurations_have_one_image()
    ensures { OneImage }
{}

// Reading words gives a configuration exactly if they are its image.
pub fn reading_is_exact()
    ensures { ReadingExact }
{}
