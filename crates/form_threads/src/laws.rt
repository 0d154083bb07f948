//! What is said of forms of threads holds of the form that code has, as a function that does nothing.

ghost use Rattle.form_threads.specs.Events.{FormIsOfThreads};

/// The events of a form over a graph, as events over valuations, are the one form of its thread: they tell what it
/// does under each valuation, each of its local runs is told by one, and they know only the graph's variables.
pub fn form_is_of_threads()
    ensures { FormIsOfThreads }
{}
