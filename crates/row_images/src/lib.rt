// ImageSample, ImageLoad and ImageQuery: proc/typifier.rs, lines 495 to 558. `reads` reads the image and looks into its
// type; `by_form` says what follows from the form.
#![tactic(auto)]

pub mod by_form;
pub mod reads;
