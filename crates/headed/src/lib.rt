#![tactic(auto)]

// Request 14: log entries under headers. The second form of an image, the reader of both forms, and what is proved of their bytes.
// The function has no body: its contract is the promise.
ghost use Rattle.headed.specs.Claim.{HeadedImages};

// A new image reads back to the state that was saved; bytes that are accepted are the old or the new image of what they read back to, and a state has a single one of each;
// the old reader refuses a new image with entries by 2; the new reader gives on old images what the old one gives.
pub fn headed_images_are_right()
    ensures { HeadedImages }
{}
