// What the definitions say, as functions without a body.
ghost use Rattle.gate_config.specs.Examples.{RouteExamples};
ghost use Rattle.gate_config.specs.Laws.{PlainRoutes};

/// In the plain configuration each path that begins with `/` has a route, and no other path has one.
pub fn plain_routes_begin_with_a_slash()
    ensures { PlainRoutes }
{}

/// Routes of paths, worked on lists of routes that are written out.
pub fn worked_routes()
    ensures { RouteExamples }
{}
