//! What bytes add to the streams of a node that a core stands for. It says nothing at run time.

ghost use Rattle.grasp_core.specs.Adding.{SomethingComes, OneComes};

/// Whatever bytes come on a stream, there is something that they add, and, where the stream is open, nothing else.
pub fn something_comes()
    ensures some { SomethingComes }
    ensures one { OneComes }
{}
